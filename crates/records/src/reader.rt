ghost use Rattle.std.specs.Prelude.{◌≡◌, ◌+◌, ◌^◌, ◌<◌, ◌≤◌, length, take, drop};
ghost use Rattle.records.specs.Forms.{counted_of};
ghost use Rattle.records.specs.Reading.{call_in, of_header, record_in, Exactly};

use crate::call::Call;
use crate::fault::RecordFault;
use crate::form::Form;

// The N bytes from `at` on.
fn field<const N: usize>(body: &[u8], at: usize) -> [u8; N]
    requires { at + N ≤ length body.now }
    ensures { result ≡ take N (drop at body.now) }
{
    *body[at..].first_chunk().unwrap()
}

// The call in a body of this form, which is long enough.
fn call_of(form: Form, body: &[u8]) -> Call
    requires { counted_of form ≤ 2 + length body.now }
    ensures { result ≡ call_in form body.now }
{
    match form {
        Form::Load => Call::Load {
            station: u16::from_le_bytes(field(body, 0)),
            kg: u32::from_le_bytes(field(body, 2)),
        },
        Form::Unload => Call::Unload {
            station: u16::from_le_bytes(field(body, 0)),
            kg: u32::from_le_bytes(field(body, 2)),
        },
        Form::Shift => Call::Shift {
            from: u16::from_le_bytes(field(body, 0)),
            to: u16::from_le_bytes(field(body, 2)),
            kg: u32::from_le_bytes(field(body, 4)),
        },
        Form::Change => Call::Change {
            station: u16::from_le_bytes(field(body, 0)),
            kg: i32::from_le_bytes(field(body, 2)),
        },
    }
}

// A record by its length and its kind, with the bytes that follow its header.
fn after_header(count: u16, kind: u16, body: &[u8], at: usize) -> Result<(Call, usize), RecordFault>
    requires { at + (4 + length body.now) < 2 ^ 64 }
    ensures { result ≡ of_header count kind body.now at }
{
    let size = usize::from(count);
    if 2 + body.len() < size {
        return Err(RecordFault::Short { at });
    }
    let form = Form::try_from(kind).map_err(|_| RecordFault::UnknownKind { at })?;
    if count != form.counted() {
        return Err(RecordFault::WrongLength { at });
    }
    Ok((call_of(form, body), at + (2 + size)))
}

// The record that begins these bytes, of which the first stands at `at`. That their end is a number is shown once,
// by `bytes_from`, and passed on: a struct of bytes and place would serve two functions only.
fn front(bytes: &[u8], at: usize) -> Result<(Call, usize), RecordFault>
    requires { at + length bytes.now < 2 ^ 64 }
    ensures value { result ≡ record_in bytes.now at }
    ensures exactly { Exactly bytes.now at result }
{
    let [l0, l1, k0, k1, body @ ..] = bytes else {
        return Err(RecordFault::Short { at });
    };
    let count = u16::from_le_bytes([*l0, *l1]);
    let kind = u16::from_le_bytes([*k0, *k1]);
    after_header(count, kind, body, at)
}

// The bytes from `at` on: none where `at` lies past the last.
fn bytes_from(bytes: &[u8], at: usize) -> &[u8]
    ensures value { result.now ≡ drop at bytes.now }
    ensures bound { at + length result.now < 2 ^ 64 }
{
    bytes.get(at..).unwrap_or(&[])
}

// The record that begins at `at`, and where the next one begins. Refusals come in this order: bytes that
// are not there, an unknown kind, a length that calls of this kind do not have.
pub fn read(bytes: &[u8], at: usize) -> Result<(Call, usize), RecordFault>
    ensures value { result ≡ record_in (drop at bytes.now) at }
    ensures exactly { Exactly (drop at bytes.now) at result }
{
    front(bytes_from(bytes, at), at)
}
