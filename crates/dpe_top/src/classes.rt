//! The class of trees among which a mode plans.
ghost use Rattle.std.specs.Prelude.{◌≡◌};
ghost use Rattle.dpe_top.specs.Classes.{class_of};

use dpe_words::Mode;
use planner::Class;

/// The class of trees among which the mode plans; none where it plans among all.
pub fn class_of(mode: Mode) -> Option<Class>
    ensures { result ≡ class_of mode }
{
    match mode {
        Mode::Narrow => Some(Class::Narrow),
        Mode::Zigzag => Some(Class::ZigZag),
        Mode::Leftdeep => Some(Class::LeftDeep),
        Mode::Plan | Mode::Sample | Mode::Migrate | Mode::Certify | Mode::Check | Mode::Reopt =>
            None,
    }
}
