#![tactic(auto)]

// From `(` to `table`: the port list, the declarations, the starting value.
ghost use Rattle.std.specs.Prelude.{◌≡◌, false, drop};
ghost use Rattle.text.specs.Reader.{bind};
ghost use Rattle.text.specs.Places.{stood};
ghost use Rattle.grammar.specs.Header.{declarations, declaration_room};
ghost use Rattle.ports.specs.Ports.{all, output};
ghost use Rattle.header.specs.Heads.{head, head_with};

use declaration::Declaring;
use ports::{PORTS, Ports};
use refusal::Fault;
use text::Step;
use value::Ternary;

// At most one declaration for each port, one `reg`, and the word behind them.
const DECLARATION_ROOM: usize = base::INPUTS + 3;

// What the header and the declarations say.
#[derive(Clone, Copy)]
pub struct Head {
    pub inputs: usize,
    pub sequential: bool,
    pub start: Ternary,
}

// The declarations up to and with `table`.
#[tactic(auto, unfolding(text::specs::Reader::check))]
fn read_declarations(text: &[u8], at: usize, ports: &Ports<'_>) -> Step<Head>
    ensures { bind (declarations declaration_room (output ports.now) (all ports.now) false at (drop at text.now)) (head_with ports.now.inputs)
        ≡ stood text.now (λ h. h) result }
{
    let inputs = ports.inputs;
    let output = ports.output();
    let mut declared = [false; PORTS];
    let mut reg = false;
    let mut i = at;
    for _ in 0..DECLARATION_ROOM {
        let p = text::skip_from(text, i);
        let (word, e) = declaration::read_declaring(text, p)?;
        match word {
            Declaring::Output => {
                i = declaration::declare(text, e, output, &mut declared[0])?;
            }
            Declaring::Reg => {
                i = declaration::declare(text, e, output, &mut reg)?;
            }
            Declaring::Input => {
                let (up, j) = ports.read_list(text, e, declared)?;
                declared = up;
                i = j;
            }
            Declaring::Initial => {
                let none = ports.all_declared(&declared);
                let (start, j) = declaration::read_initial(text, e, output, none, reg, p)?;
                let head = Head {
                    inputs,
                    sequential: true,
                    start,
                };
                return Ok((head, j));
            }
            Declaring::Table => {
                let complete = ports.all_declared(&declared);
                let undeclared = !complete;
                if undeclared {
                    return Err(Fault::Port.at(p));
                }
                let head = Head {
                    inputs,
                    sequential: reg,
                    start: Ternary::X,
                };
                return Ok((head, e));
            }
        }
    }
    Err(text::fault_at(text, i))
}

// From `(` to `table`.
#[tactic(auto, unfolding(grammar::specs::Header::declared, crate::specs::Heads::head, grammar::specs::Header::port_list))]
pub fn read_head(text: &[u8], at: usize) -> Step<Head>
    ensures { head at (drop at text.now) ≡ stood text.now (λ h. h) result }
{
    let i = text::read_mark(text, at, b'(')?;
    let output = text::read_name(text, i)?;
    let j = text::read_mark(text, output.end, b',')?;
    let (ports, k) = Ports::read_inputs(text, j, output.of(text))?;
    let m = text::read_mark(text, k, b';')?;
    read_declarations(text, m, &ports)
}
