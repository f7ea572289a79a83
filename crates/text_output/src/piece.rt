//! What a text is made of.
ghost use Rattle.std.specs.Prelude.{◌≡◌};
ghost use Rattle.text_output.specs.Pieces.{text_of, known_text};
ghost use Rattle.text_output.specs.declared.piece.Form.{Form as a_form};

/// For whom it is written.
#[derive(Clone, Copy)]
pub enum Form {
    /// Lines for people.
    People,
    /// One JSON object.
    Json,
}

/// A piece of a text.
#[derive(Clone, Copy)]
pub enum Piece {
    /// These characters for people, and those as JSON.
    Text(&'static str, &'static str),
    /// These characters in both forms.
    Same(&'static str),
    /// A number in decimal digits.
    Number(u64),
    /// A number in decimal digits, with a minus before it where it is below zero.
    Signed(i64),
    /// No text, where an array has space for more pieces than a text has.
    Nothing,
}

/// A number; a question mark or `null` where it isn't known.
pub fn known(number: Option<u64>) -> Piece
    ensures { (form : a_form) → text_of form result ≡ known_text form number }
{
    match number {
        Some(number) => Piece::Number(number),
        None => Piece::Text("?", "null"),
    }
}
