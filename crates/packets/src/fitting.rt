//! Whether lists and optional parts are as their layout wants them.
ghost use Rattle.std.specs.Prelude.{◌≡◌, ◌≤◌, ◌↔◌, Some, IsTrue, length};
ghost use Rattle.std.specs.List.{AllByRecursion as Each};
ghost use Rattle.bits.specs.Fitting.{Fits};
ghost use Rattle.bits.specs.Layout.{part as part_layout};
ghost use Rattle.bits.specs.Writing.{value};
ghost use Rattle.packets.specs.Parts.{FromFirstFits, QualifiedFits};

use crate::element::Element;

/// Whether all elements are as their layout wants them.
pub(crate) fn all_fit<T: Element>(elements: &[T]) -> bool
    ensures { IsTrue result ↔ Each (λ d. Fits T.layout d × (value T.layout d ≡ Some d)) elements.now }
{
    for element in elements {
        if !element.fits() {
            return false;
        }
    }
    true
}

/// Whether a list has a first element, and all its elements are as their layout wants them.
pub(crate) fn from_first_fits<T: Element>(elements: &[T]) -> bool
    requires { length elements.now ≤ 32 }
    ensures { IsTrue result ↔ FromFirstFits T.layout elements.now }
{
    !elements.is_empty() && all_fit(elements)
}

/// Whether a part is there exactly where it is given, and is as its layout wants it.
pub(crate) fn part_fits<T: Element>(given: bool, part: &Option<T>) -> bool
    ensures { IsTrue result ↔ Fits (part_layout given T.layout (λ x. x)) part.now }
{
    match part {
        Some(part) => given && part.fits(),
        None => !given,
    }
}

/// Whether the part after a qualifier is as its layout wants it, where it is there.
#[tactic(auto, using(vars::proofs::Numbers::flag_has))]
pub(crate) fn qualified_fits<T: Element>(part: &Option<T>) -> bool
    ensures { IsTrue result ↔ QualifiedFits T.layout part.now }
{
    match part {
        Some(part) => part.fits(),
        None => true,
    }
}
