//! The form of a call or an answer.

ghost use Rattle.std.specs.Prelude.{◌≡◌};
ghost use Rattle.call_fields.specs.Forms.{read_form, row};

/// What stands in a field of a call or an answer.
#[derive(Clone, Copy, Debug, PartialEq, Eq)]
pub enum Field {
    /// A number of 64 bits.
    Number,
    /// The number of a message, of 64 bits.
    Message,
    /// A number of 64 bits with its sign.
    Signed,
    /// A name, by its place in the script's list of names.
    Name,
    /// A procedure, by its place in the script's list of procedures.
    Procedure,
    /// A window of an answer, or 0.
    Window,
    /// The number of a send, or 0.
    Send,
    /// An actor, 0 to 15.
    Thread,
    /// The number of a post, or 0.
    Count,
    /// The number of a message of an answer, of 32 bits.
    ShortMessage,
    /// A place on the screen in pixels, of 32 bits with its sign.
    Pixel,
    /// A number of 8 bits: which kind of region, or whether the background is to be erased.
    Byte,
    /// Where a message came from.
    Source,
    /// How a send came to its answer.
    Cause,
    /// Why a call was refused.
    Code,
}

/// The row of a call or an answer: its word, and the kinds of its fields in the order in which they are
/// written.
#[derive(Clone, Copy)]
pub struct Form {
    pub word: &'static [u8],
    pub fields: &'static [Field],
}

/// The form of this word, with fields of these kinds.
pub fn row_of(word: &'static [u8], fields: &'static [Field]) -> Form
    ensures { read_form result ≡ row word.now fields.now }
{
    Form { word, fields }
}
