#![tactic(auto)]

// lister: reads library text from standard input and prints each verdict as its entry without space and trailer, one line each.
// At a refusal it prints the line `refused N at PLACE` and stops.
use arrayvec::ArrayVec;
use handed::Verdict;
use refusal::Refusal;

// More bytes than any entry has.
const LINE: usize = 128;

// What an entry has behind its verdict: a space, the trailer and an LF.
const TRAILER: usize = 8;

// Lines are gathered, since a write for each would cost more than its verdict.
const GATHERED: usize = 4096;

// What standard output does not take is not said, and the list goes on.
fn write_out(to: &impl Print, lines: &mut ArrayVec<u8, GATHERED>) {
    let _ = to.write_all(lines.as_slice());
    lines.clear();
}

// What is gathered is written first where the line may not fit, so that whole lines are written.
fn gather(to: &impl Print, lines: &mut ArrayVec<u8, GATHERED>, line: &[u8]) {
    if lines.remaining_capacity() < LINE {
        write_out(to, lines);
    }
    let _ = lines.try_extend_from_slice(line);
    let _ = lines.try_push(b'\n');
}

// The entry is made as the first of a book of its own.
fn add_line(to: &impl Print, lines: &mut ArrayVec<u8, GATHERED>, verdict: Verdict) {
    let mut line = [0u8; LINE];
    match book::append(&mut line, 0, verdict) {
        Ok(end) => gather(to, lines, text::part(&line, 0, end.saturating_sub(TRAILER))),
        Err(refusal) => {
            write_out(to, lines);
            say::refusal(to, refusal);
        }
    }
}

fn list(to: &impl Print, lines: &mut ArrayVec<u8, GATHERED>, text: &[u8]) -> Result<(), Refusal> {
    let mut area = [0u8; table::AREA];
    let mut at: usize = 0;
    while let Some((finding, next)) = listing::next_verdict(text, at, &mut area)? {
        add_line(to, lines, keeping::verdict_in(&area, finding));
        at = next;
    }
    Ok(())
}

// One byte more than a text may have is read, so that a longer one is refused as such; a read that fails ends the text.
fn list_input(rt: &HostRuntime, input: &mut [u8]) {
    let n = match disk::load_from(&mut rt.stdin(), input) {
        Ok(n) => n,
        Err(cut) => cut.read,
    };
    let mut lines = ArrayVec::<u8, GATHERED>::new();
    let listed = list(rt, &mut lines, &input[..n]);
    write_out(rt, &mut lines);
    if let Err(refusal) = listed {
        say::refusal(rt, refusal);
    }
}

fn main(rt: HostRuntime) {
    let mut input = [0u8; base::TEXT + 1];
    list_input(&rt, &mut input);
}
