#![tactic(auto)]

// Reading one primitive from a text into the area of a table.
ghost use Rattle.std.specs.Prelude.{◌≡◌, length, drop};
ghost use Rattle.table.specs.Places.{area_size};
ghost use Rattle.table.specs.Area.{encode};
ghost use Rattle.text.specs.Places.{ended};
ghost use Rattle.grammar.specs.Reading.{primitive};
ghost use Rattle.reading.specs.Told.{out, read_into};
ghost use Rattle.rows.specs.Drawn.{drawn};

use refusal::{Fault, Refusal};

// One primitive, drawn into an area.
fn read_primitive(text: &[u8], at: usize, draft: &mut [u8]) -> Result<usize, Refusal>
    requires { length draft.old ≡ area_size }
    ensures { drawn encode (primitive at (drop at text.now)) ≡ ended text.now draft.new result }
{
    let i = text::read_keyword(text, at, b"primitive")?;
    let name = text::read_name(text, i)?;
    let (head, j) = header::read_head(text, name.end)?;
    writing::write_head(
        draft,
        name.of(text),
        head.sequential,
        head.inputs,
        head.start,
    );
    let k = rows::read_rows(text, j, head.sequential, head.inputs, draft)?;
    text::read_keyword(text, k, b"endprimitive")
}

// Reads one primitive from a place of the text on: the answer is the place behind it, and the area gets the whole table. Where
// only blanks and comments remain there is none; then, and at a refusal, the area is left as it was.
#[tactic(auto, unfolding(grammar::specs::Reading::read, crate::specs::Told::read_into))]
pub fn read(text: &[u8], start: usize, area: &mut [u8]) -> Result<Option<usize>, Refusal>
    ensures { read_into text.now start area.old ≡ out result area.new }
{
    let other_size = area.len() != table::AREA;
    if other_size {
        return Err(Fault::Area.at(0));
    }
    if base::TEXT < text.len() {
        return Err(Fault::LongText.at(base::TEXT));
    }
    if text.len() < start {
        return Err(Fault::Unexpected.at(text.len()));
    }
    let i = text::skip_from(text, start);
    if text.len() <= i {
        return Ok(None);
    }
    let mut draft = [0u8; table::AREA];
    let next = read_primitive(text, i, &mut draft)?;
    area.copy_from_slice(&draft);
    Ok(Some(next))
}
