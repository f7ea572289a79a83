//! Texts of packets, for people and as JSON.
ghost use Rattle.std.specs.Prelude.{◌≡◌};
ghost use Rattle.text_output.specs.Pieces.{text_of, texts};
ghost use Rattle.text_output.specs.declared.piece.Form.{Form as a_form};
ghost use Rattle.packet_uses.specs.Texts.{name_reported, number_text, place_text, why_text};

use crate::fate::Fate;
use text_output::Piece;
use track_packets::kind_of;

/// The number of a packet, up to its name: for people after this label, as JSON after a comma where it is a later one
/// of a list.
pub fn number_pieces(label: &'static str, later: bool, number: u8) -> [Piece; 3]
    ensures { (form : a_form) → texts form result ≡ number_text form label.now later number }
{
    let json = if later {
        ",{\"packet\":"
    } else {
        "{\"packet\":"
    };
    [
        Piece::Text(label, json),
        Piece::Number(u64::from(number)),
        Piece::Text(" ", ",\"name\":"),
    ]
}

/// The name of a packet by its number; as JSON null where it has none.
pub fn name_pieces(number: u8) -> [Piece; 3]
    ensures { (form : a_form) → texts form result ≡ name_reported form number }
{
    match kind_of(number) {
        Some(kind) => [
            Piece::Text("", "\""),
            Piece::Same(kind.name.text()),
            Piece::Text("", "\""),
        ],
        None => [
            Piece::Text("without a name", "null"),
            Piece::Nothing,
            Piece::Nothing,
        ],
    }
}

/// The first bit of a packet in its telegram and its length in bits, up to why it isn't used.
pub fn place_pieces(start: u64, length: u64) -> [Piece; 5]
    ensures { (form : a_form) → texts form result ≡ place_text form start length }
{
    [
        Piece::Text(" at ", ",\"bit\":"),
        Piece::Number(start),
        Piece::Text(", ", ",\"bits\":"),
        Piece::Number(length),
        Piece::Text(" bits", ",\"why\":"),
    ]
}

/// Why a packet isn't used: nothing of one that is, and as JSON null.
pub fn why_piece(fate: Fate) -> Piece
    ensures { (form : a_form) → text_of form result ≡ why_text form fate }
{
    match fate {
        Fate::Used => Piece::Text("", "null"),
        Fate::NotKnown => Piece::Text(" (not known)", "\"not_known\""),
        Fate::Infill => Piece::Text(" (infill)", "\"infill\""),
        Fate::NotInMode => Piece::Text(" (not in this mode)", "\"not_in_mode\""),
        Fate::OtherDirection => Piece::Text(" (other direction)", "\"other_direction\""),
        Fate::Refused => Piece::Text(" (refused)", "\"refused\""),
    }
}
