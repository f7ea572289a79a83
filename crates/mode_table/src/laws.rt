//! Laws: by which rows areas change the mode, and which items every mode keeps.
ghost use Rattle.mode_table.specs.Laws.{AreasTurnByTheirRows, TheseAreKept, KeptIsNeverLost};

/// A law: On Sight is entered from another mode exactly by rows 7, 31 and 32, and Shunting, where the driver didn't
/// choose it, exactly by rows 29 and 30.
pub fn areas_turn_by_their_rows()
    ensures { AreasTurnByTheirRows }
{}

/// A law: which items each mode keeps, and that these are kept whatever modes are entered.
pub fn kept_is_never_lost()
    ensures which { TheseAreKept }
    ensures always { KeptIsNeverLost }
{}
