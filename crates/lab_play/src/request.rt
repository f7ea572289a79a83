//! What a line of `play` asks for.

use mode_table::Cold;
use serde::{Deserialize, Deserializer, Format};
use serde_json::Value;
use simulator::ScenarioFault;
use std::alloc::Global;

/// A fault of a line outside its scenario, with its JSON pointer and what is wanted there.
#[derive(Clone, Copy)]
pub(crate) struct LineFault {
    /// The fault, by the name that it has in a scenario.
    pub fault: ScenarioFault,
    /// Its JSON pointer.
    pub pointer: &'static str,
    /// What is wanted there.
    pub wanted: &'static str,
}

/// What a line asks for, next to its scenario.
#[derive(Clone, Copy, Default)]
pub(crate) struct Request {
    /// What is known of movements without power, in place of what the scenario says.
    pub cold: Option<Cold>,
    /// The slots of the journal.
    pub slots: Option<u32>,
    /// Whether the digest of the journal image is printed.
    pub digest: bool,
}

const NAMES: [&str; 5] = ["id", "scenario", "cold", "slots", "sha256"];

const MEMBERS: LineFault = LineFault {
    fault: ScenarioFault::Shape,
    pointer: "",
    wanted: "an object of scenario, and perhaps id, cold, slots and sha256",
};

const ID: LineFault = LineFault {
    fault: ScenarioFault::Shape,
    pointer: "/id",
    wanted: "a text or a whole number",
};

const COLD: LineFault = LineFault {
    fault: ScenarioFault::OutOfRange,
    pointer: "/cold",
    wanted: "a whole number, 0 to 2",
};

const SLOTS: LineFault = LineFault {
    fault: ScenarioFault::OutOfRange,
    pointer: "/slots",
    wanted: "a whole number, 2 to 1048576",
};

const DIGEST: LineFault = LineFault {
    fault: ScenarioFault::Shape,
    pointer: "/sha256",
    wanted: "true or false",
};

const NOT_JSON: LineFault = LineFault {
    fault: ScenarioFault::NotJson,
    pointer: "",
    wanted: "a JSON object on one line",
};

/// A file that is no JSON.
pub(crate) const NO_FILE: LineFault = LineFault {
    fault: ScenarioFault::NotJson,
    pointer: "",
    wanted: "JSON (RFC 8259)",
};

// Memory was refused.
const NO_MEMORY: LineFault = LineFault {
    fault: ScenarioFault::NoMemory,
    pointer: "",
    wanted: "memory",
};

// How many members an object has, also where several have one name.
#[derive(Drop)]
struct Entries(usize);

impl<'de> Deserialize<'de> for Entries {
    fn deserialize<F: Format>(
        alloc: Global,
        from: &mut Deserializer<'de, '_, F>,
    ) -> Result<Entries, F::Error> {
        from.begin_map()?;
        let mut count = 0usize;
        for _ in 0..u64::MAX {
            if !from.next_entry()? {
                break;
            }
            from.string(alloc)?;
            from.skip()?;
            count = count.saturating_add(1);
        }
        Ok(Entries(count))
    }
}

/// The members of a line.
#[derive(Drop)]
pub(crate) struct Members {
    // The line's value.
    value: Value,
    // How many members it has; 0 of a value that is no object.
    count: usize,
}

fn cold_of(members: &Value) -> Result<Option<Cold>, LineFault> {
    let Some(value) = members.get("cold") else {
        return Ok(None);
    };
    match value.as_u64() {
        Some(0) => Ok(Some(Cold::Unknown)),
        Some(1) => Ok(Some(Cold::Moved)),
        Some(2) => Ok(Some(Cold::NotMoved)),
        _ => Err(COLD),
    }
}

fn slots_of(members: &Value) -> Result<Option<u32>, LineFault> {
    let Some(value) = members.get("slots") else {
        return Ok(None);
    };
    match value.as_u64() {
        Some(slots) if slots >= 2 && slots <= 1_048_576 => Ok(Some(slots as u32)),
        _ => Err(SLOTS),
    }
}

fn digest_of(members: &Value) -> Result<bool, LineFault> {
    match members.get("sha256") {
        Some(value) => value.as_bool().ok_or(DIGEST),
        None => Ok(false),
    }
}

impl Members {
    /// The members of a line.
    pub(crate) fn of_line(alloc: Global, line: &[u8]) -> Result<Members, LineFault> {
        let value = match Value::from_slice(alloc, line) {
            Ok(value) => value,
            Err(error) if error.is_memory() => return Err(NO_MEMORY),
            Err(_) => return Err(NOT_JSON),
        };
        match serde_json::from_slice(alloc, line) {
            Ok(Entries(count)) => Ok(Members { value, count }),
            Err(error) if error.is_memory() => Err(NO_MEMORY),
            Err(_) => Ok(Members { value, count: 0 }),
        }
    }

    /// The name of the scenario, where it is a text or a whole number.
    pub(crate) fn id(&self) -> Option<&Value> {
        match self.value.get("id") {
            Some(id) if id.is_string() || id.is_i64() || id.is_u64() => Some(id),
            _ => None,
        }
    }

    // The scenario, where each member is known and none is there twice.
    fn scenario(&self) -> Option<&Value> {
        let known = NAMES.iter().filter(|name| self.value.get(**name).is_some());
        if self.count != known.count() {
            return None;
        }
        self.value.get("scenario")
    }

    /// What the line asks for, and its scenario.
    pub(crate) fn request(&self) -> Result<(Request, &Value), LineFault> {
        let scenario = self.scenario().ok_or(MEMBERS)?;
        if self.value.get("id").is_some() && self.id().is_none() {
            return Err(ID);
        }
        let request = Request {
            cold: cold_of(&self.value)?,
            slots: slots_of(&self.value)?,
            digest: digest_of(&self.value)?,
        };
        Ok((request, scenario))
    }
}
