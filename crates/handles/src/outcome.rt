//! What a call answers, and how a text goes out.
ghost use Rattle.std.specs.Prelude.{◌≡◌};
ghost use Rattle.handles.specs.Calls.{laid, ShowsText};

use typed_calls::status;

/// A status, and the length of the whole reply.
#[repr(C)]
#[derive(Clone, Copy, Drop)]
pub struct Outcome {
    /// The status.
    pub status: i32,
    /// How long the reply is, in bytes; 0 if there is none.
    pub length: usize,
}

impl Outcome {
    /// A status without a reply.
    pub fn refusal(status: i32) -> Outcome
        ensures { result ≡ record { status = status; length = 0 } }
    {
        Outcome { status, length: 0 }
    }
}

/// Writes as much of the text as fits.
pub fn lay(out: &mut [u8], text: &[u8])
    ensures { out.new ≡ laid out.old text.now }
{
    let count = if text.len() < out.len() {
        text.len()
    } else {
        out.len()
    };
    let (front, _) = out.split_at_mut(count);
    front.copy_from_slice(text.split_at(count).0);
}

/// Writes as much of a status's text to `out` as fits, and gives the text's length.
pub fn show_text(status: i32, out: &mut [u8]) -> usize
    ensures { ShowsText status out.old result out.new }
{
    let text = status::text_of(status);
    lay(out, text.as_bytes());
    text.len()
}
