//! The text of a value for people: its members by name, with the units that people use.

use serde::{Case, Serialize, Serializer};
use std::fmt;

// The unit of a number, by the end of its member's name.
#[derive(Clone, Copy)]
enum Unit {
    None,
    Milliseconds,
    Centimetres,
    CentimetresPerSquareSecond,
    MetresPerHour,
}

// A number with its thousandths after the point, without zeros at the end: 300, 0.5, 39.271.
fn write_decimal<W: fmt::Write>(
    whole: u64,
    thousandths: u64,
    f: &mut fmt::Formatter<W>,
) -> fmt::Result {
    write!(f, "{whole}")?;
    let (tenths, hundredths) = (thousandths / 100, thousandths / 10);
    if thousandths == 0 {
        Ok(())
    } else if thousandths % 100 == 0 {
        write!(f, ".{tenths}")
    } else if thousandths % 10 == 0 {
        write!(f, ".{hundredths:02}")
    } else {
        write!(f, ".{thousandths:03}")
    }
}

fn write_thousandths<W: fmt::Write>(
    number: u64,
    unit: &str,
    f: &mut fmt::Formatter<W>,
) -> fmt::Result {
    write_decimal(number / 1000, number % 1000, f)?;
    write!(f, " {unit}")
}

fn write_hundredths<W: fmt::Write>(
    number: u64,
    unit: &str,
    f: &mut fmt::Formatter<W>,
) -> fmt::Result {
    write_decimal(number / 100, number % 100 * 10, f)?;
    write!(f, " {unit}")
}

// A number in seconds, metres, metres per square second or kilometres per hour.
fn write_number<W: fmt::Write>(
    sign: &str,
    number: u64,
    unit: Unit,
    f: &mut fmt::Formatter<W>,
) -> fmt::Result {
    f.write_str(sign)?;
    match unit {
        Unit::None => write!(f, "{number}"),
        Unit::Milliseconds => write_thousandths(number, "s", f),
        Unit::Centimetres => write_hundredths(number, "m", f),
        Unit::CentimetresPerSquareSecond => write_hundredths(number, "m/s2", f),
        Unit::MetresPerHour => write_thousandths(number, "km/h", f),
    }
}

/// Prints metres per hour in kilometres per hour, as `39.271 km/h`.
#[derive(Clone, Copy)]
pub struct SpeedText(pub u32);

impl fmt::Display for SpeedText {
    fn fmt<W: fmt::Write>(&self, f: &mut fmt::Formatter<W>) -> fmt::Result {
        write_number("", u64::from(self.0), Unit::MetresPerHour, f)
    }
}

/// Prints centimetres in metres, as `1.5 m`.
#[derive(Clone, Copy)]
pub struct LengthText(pub u64);

impl fmt::Display for LengthText {
    fn fmt<W: fmt::Write>(&self, f: &mut fmt::Formatter<W>) -> fmt::Result {
        write_number("", self.0, Unit::Centimetres, f)
    }
}

/// Prints a place in centimetres in metres, as `-1.5 m`.
#[derive(Clone, Copy)]
pub struct PlaceText(pub i64);

impl fmt::Display for PlaceText {
    fn fmt<W: fmt::Write>(&self, f: &mut fmt::Formatter<W>) -> fmt::Result {
        let sign = if self.0 < 0 { "-" } else { "" };
        write_number(sign, self.0.unsigned_abs(), Unit::Centimetres, f)
    }
}

// Takes a value apart, and prints its parts.
#[derive(Drop)]
struct Describer<'a, W> {
    f: &'a mut fmt::Formatter<W>,
    // What stands between the members of the value itself.
    separator: &'a str,
    unit: Unit,
    // How many objects and lists are open.
    depth: u8,
    // Whether a name was printed last.
    has_name: bool,
    // Whether something comes before in this object or list.
    is_later: bool,
    // Whether the members of the next object belong to the one that is open.
    flattens: bool,
    // How many objects and lists were open where the members of such an object began.
    flat_in: Option<u8>,
}

impl<W: fmt::Write> Describer<'_, W> {
    fn begin_part(&mut self) -> fmt::Result {
        let has_comma = self.is_later && !self.has_name;
        self.has_name = false;
        self.is_later = true;
        match (has_comma, self.depth) {
            (false, _) => Ok(()),
            (true, 1) => self.f.write_str(self.separator),
            (true, _) => self.f.write_str(", "),
        }
    }

    fn number(&mut self, sign: &str, number: u64) -> fmt::Result {
        self.begin_part()?;
        write_number(sign, number, self.unit, self.f)
    }

    fn text(&mut self, text: &str) -> fmt::Result {
        self.begin_part()?;
        self.f.write_str(text)
    }

    fn open(&mut self) -> fmt::Result {
        self.begin_part()?;
        self.is_later = false;
        self.depth = self.depth.saturating_add(1);
        if self.depth > 1 {
            self.f.write_str("(")
        } else {
            Ok(())
        }
    }

    fn close(&mut self) -> fmt::Result {
        let is_empty = !self.is_later;
        self.is_later = true;
        self.depth = self.depth.saturating_sub(1);
        match (is_empty, self.depth) {
            (true, _) => self.f.write_str("none)"),
            (false, 0) => Ok(()),
            (false, _) => self.f.write_str(")"),
        }
    }

    fn name(&mut self, name: &str) -> fmt::Result {
        self.begin_part()?;
        self.has_name = true;
        let (unit, name) = unit_of(name);
        self.unit = unit;
        for sign in name.chars() {
            self.f.write_char(if sign == '_' { ' ' } else { sign })?;
        }
        self.f.write_str(" ")
    }
}

// The unit of a member, and its name without it.
fn unit_of(name: &str) -> (Unit, &str) {
    if let Some(name) = name.strip_suffix("_m_per_h") {
        return (Unit::MetresPerHour, name);
    }
    if let Some(name) = name.strip_suffix("_cm_per_s2") {
        return (Unit::CentimetresPerSquareSecond, name);
    }
    if let Some(name) = name.strip_suffix("_cm") {
        return (Unit::Centimetres, name);
    }
    if let Some(name) = name.strip_suffix("_ms") {
        return (Unit::Milliseconds, name);
    }
    (Unit::None, name)
}

impl<W: fmt::Write> Serializer for Describer<'_, W> {
    type Error = fmt::Error;

    fn bool(&mut self, v: bool) -> fmt::Result {
        self.text(if v { "yes" } else { "no" })
    }

    fn i64(&mut self, v: i64) -> fmt::Result {
        self.number(if v < 0 { "-" } else { "" }, v.unsigned_abs())
    }

    fn u64(&mut self, v: u64) -> fmt::Result {
        self.number("", v)
    }

    fn i128(&mut self, _v: i128) -> fmt::Result {
        Err(fmt::Error)
    }

    fn u128(&mut self, _v: u128) -> fmt::Result {
        Err(fmt::Error)
    }

    fn f32(&mut self, _v: f32) -> fmt::Result {
        Err(fmt::Error)
    }

    fn f64(&mut self, _v: f64) -> fmt::Result {
        Err(fmt::Error)
    }

    fn char(&mut self, _v: char) -> fmt::Result {
        Err(fmt::Error)
    }

    fn str(&mut self, v: &str) -> fmt::Result {
        self.text(v)
    }

    fn bytes(&mut self, _v: &[u8]) -> fmt::Result {
        Err(fmt::Error)
    }

    fn unit(&mut self) -> fmt::Result {
        self.text("none")
    }

    fn str_cased(&mut self, name: &str, _case: Case) -> fmt::Result {
        self.text(name)
    }

    fn begin_seq(&mut self, _len: Option<usize>) -> fmt::Result {
        self.open()
    }

    fn end_seq(&mut self) -> fmt::Result {
        self.close()
    }

    fn begin_map(&mut self, _len: Option<usize>) -> fmt::Result {
        if !self.flattens {
            return self.open();
        }
        self.flattens = false;
        self.flat_in = Some(self.depth);
        Ok(())
    }

    fn end_map(&mut self) -> fmt::Result {
        if self.flat_in != Some(self.depth) {
            return self.close();
        }
        self.flat_in = None;
        Ok(())
    }

    fn key_cased(&mut self, name: &str, _case: Case) -> fmt::Result {
        self.name(name)
    }

    fn variant_key(&mut self, name: &str, _case: Case) -> fmt::Result {
        self.name(name)
    }

    fn begin_key(&mut self) -> fmt::Result {
        Err(fmt::Error)
    }

    fn end_key(&mut self) -> fmt::Result {
        Err(fmt::Error)
    }

    fn flatten_next(&mut self) -> fmt::Result {
        self.flattens = true;
        Ok(())
    }

    fn custom(&self, _message: &str) -> fmt::Error {
        fmt::Error
    }
}

/// Prints the members of a value with this between them, as the beginning of a line, and what is inside one in
/// parentheses. Names of variants are printed without the case of `rename_all`; a value with a float, a map or bytes is
/// an error, and so is a flattened member that is no struct.
pub fn describe_lines<T: Serialize, W: fmt::Write>(
    value: &T,
    separator: &str,
    f: &mut fmt::Formatter<W>,
) -> fmt::Result {
    let mut describer = Describer {
        f,
        separator,
        unit: Unit::None,
        depth: 0,
        has_name: false,
        is_later: false,
        flattens: false,
        flat_in: None,
    };
    value.serialize(&mut describer)
}

/// The same with commas between them.
pub fn describe_value<T: Serialize, W: fmt::Write>(
    value: &T,
    f: &mut fmt::Formatter<W>,
) -> fmt::Result {
    describe_lines(value, ", ", f)
}
