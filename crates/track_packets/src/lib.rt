//! The packets that a balise may send by SUBSET-026, issue 2.3.0: their names, where they stand in a telegram, and
//! their fields by layouts that are data.
#![tactic(auto)]

/// The value, or a return with the error as it is.
macro_rules! ok {
    ($answer:expr) => {
        match $answer {
            Ok(value) => value,
            Err(error) => return Err(error),
        }
    };
}

/// Width and unit of a variable, in a row.
macro_rules! shape {
    ($width:expr, $unit:ident) => {
        Shape {
            width: $width,
            unit: Unit::$unit,
        }
    };
}

mod fault;
mod fields;
mod kernel;
mod kind;
mod layouts;
mod listing;
mod packet_bits;
mod reading;
mod row;
mod shape;
mod shared;
mod variable;

pub use fault::{FieldFault, FieldPlace};
pub use fields::fields_of;
pub use kind::{Body, Issue, KINDS, Kind, PacketName, Sender, Sureness, kind_of};
pub use layouts::{HEAD, rows_of};
pub use listing::{Listing, ListingEnd, MOST_LISTED, PacketPlace, packets_in_order};
pub use reading::{Field, Fields, FieldsError};
pub use row::{Role, Row, When};
pub use shape::Unit;
pub use variable::Variable;
