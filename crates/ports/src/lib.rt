#![tactic(auto)]

// The ports of the header, and the `input` lists that name them again.
ghost use Rattle.std.specs.Prelude.{◌≡◌, ◌≤◌, ◌<◌, ◌+◌, [], ◌∷◌, ◌++◌, false, drop, length};
ghost use Rattle.base.specs.Limits.{input_limit};
ghost use Rattle.text.specs.Words.{member};
ghost use Rattle.ports.specs.Names.{names_of, find, fresh, down, all_up, Distinct, Distinct-prop};

use refusal::{Fault, Refusal};
use text::{Span, Step};

// The output and the inputs.
pub const PORTS: usize = base::INPUTS + 1;

// One `input` list has at most the ports, and a name that is none of them.
const LIST_ROOM: usize = base::INPUTS + 2;

// The output, and so many inputs behind it, with different names.
#[derive(Clone, Copy)]
pub struct Ports<'a> {
    pub names: [&'a [u8]; PORTS],
    pub inputs: usize,
    pub ghost long: { length names ≡ input_limit + 1 },
    pub ghost few: { inputs ≤ input_limit },
    pub ghost distinct: { Distinct (names_of names inputs) } by { Distinct-prop (names_of names inputs) },
}

impl<'a> Ports<'a> {
    ghost use Rattle.text.specs.Places.{ended, stood, named};
    ghost use Rattle.grammar.specs.Header.{input_list, list_room};
    ghost use Rattle.ports.specs.Ports.{all, output, heading, new_name, ports_behind};

    // The output alone.
    fn new(output: &'a [u8]) -> Ports<'a>
        ensures no_input { result.inputs ≡ 0 }
        ensures names { all result ≡ output.now ∷ [] }
    {
        Ports {
            names: [output; PORTS],
            inputs: 0,
        }
    }

    // One input more, which is none of the ports.
    fn push(&mut self, name: &'a [u8])
        requires room { self.old.inputs < input_limit }
        requires other { member name.now (all self.old) ≡ false }
        ensures one_more { self.new.inputs ≡ self.old.inputs + 1 }
        ensures names { all self.new ≡ all self.old ++ (name.now ∷ []) }
    {
        let last = self.inputs + 1;
        self.names[last] = name;
        self.inputs = last;
    }

    pub fn output(&self) -> &'a [u8]
        ensures { result.now ≡ output self.now }
    {
        self.names[0]
    }

    // The first port of a name.
    fn position(&self, name: &[u8]) -> Option<usize>
        ensures { result ≡ find name.now (all self.now) }
    {
        self.names[..self.inputs + 1]
            .iter()
            .position(|port| name == *port)
    }

    // The input of a name that is not declared yet.
    fn undeclared(&self, name: &[u8], declared: &[bool; PORTS]) -> Option<usize>
        ensures { result ≡ fresh (find name.now (all self.now)) declared.now }
    {
        let port = self.position(name)?;
        let is_output = port == 0;
        if is_output | declared[port] {
            return None;
        }
        Some(port)
    }

    pub fn all_declared(&self, declared: &[bool; PORTS]) -> bool
        ensures { result ≡ all_up (self.now.inputs + 1) declared.now }
    {
        declared[..self.inputs + 1].iter().all(|flag| *flag)
    }

    // A name that is none of the ports, behind blanks.
    fn read_new(&self, text: &[u8], at: usize) -> Result<Span, Refusal>
        ensures { new_name (all self.now) at (drop at text.now) ≡ named text.now result }
    {
        let name = text::read_name(text, at)?;
        match self.position(name.of(text)) {
            Some(_) => Err(Fault::Port.at(name.start)),
            None => Ok(name),
        }
    }

    // The inputs up to and with `)`, behind the output.
    pub fn read_inputs(text: &'a [u8], at: usize, output: &'a [u8]) -> Step<Ports<'a>>
        ensures { ports_behind input_limit output.now [] at (drop at text.now) ≡ stood text.now heading result }
    {
        let mut ports = Ports::new(output);
        let mut i = at;
        for _ in 0..base::INPUTS {
            let name = ports.read_new(text, i)?;
            let (more, j) = text::read_either(text, name.end, b',', b')')?;
            ports.push(name.of(text));
            if !more {
                return Ok((ports, j));
            }
            i = j;
        }
        let tenth = ports.read_new(text, i)?;
        Err(Fault::TooMany.at(tenth.start))
    }

    // The names of an `input` list up to and with `;`, which are declared then.
    pub fn read_list(&self, text: &[u8], at: usize, declared: [bool; PORTS]) -> Step<[bool; PORTS]>
        ensures { input_list list_room (output self.now) (down (all self.now) declared) at (drop at text.now)
            ≡ stood text.now (λ up. down (all self.now) up) result }
    {
        let mut up = declared;
        let mut i = at;
        for _ in 0..LIST_ROOM {
            let name = text::read_name(text, i)?;
            let port = self
                .undeclared(name.of(text), &up)
                .ok_or(Fault::Port.at(name.start))?;
            let (more, j) = text::read_either(text, name.end, b',', b';')?;
            up[port] = true;
            if !more {
                return Ok((up, j));
            }
            i = j;
        }
        Err(text::fault_at(text, i))
    }
}
