// Calls as they are typed, each in the widths of its record.
ghost use Rattle.std.specs.Prelude.{◌≡◌};
ghost use Rattle.listing.specs.Lines.{call_word};

use crate::fields::Fields;
use crate::line::Line;
use crate::wrong::Wrong;
use records::Call;

impl Line for Call {
    const KNOWN: &'static str = "load, unload, shift or change";

    ghost says = { λ first call. first ≡ call_word call };

    fn read<'a>(first: &str, fields: &mut Fields<'a>) -> Result<Option<Call>, Wrong<'a>> {
        match first {
            "load" => Ok(Some(Call::Load {
                station: fields.number("station")?,
                kg: fields.number("mass")?,
            })),
            "unload" => Ok(Some(Call::Unload {
                station: fields.number("station")?,
                kg: fields.number("mass")?,
            })),
            "shift" => Ok(Some(Call::Shift {
                from: fields.number("station to shift from")?,
                to: fields.number("station to shift to")?,
                kg: fields.number("mass")?,
            })),
            "change" => Ok(Some(Call::Change {
                station: fields.number("station")?,
                kg: fields.number("mass")?,
            })),
            _ => Ok(None),
        }
    }
}
