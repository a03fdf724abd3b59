//! The codes of refusals of the calls on classes and windows (Microsoft, System Error Codes).

use win_num::Code;

/// A child without a parent.
pub const CHILD_WITHOUT_PARENT: Code = Code::Win(1406);

/// A window of no class.
pub const CANNOT_FIND_CLASS: Code = Code::Win(1407);

/// The class is there.
pub const CLASS_ALREADY_EXISTS: Code = Code::Win(1410);

/// The class isn't there.
pub const CLASS_DOES_NOT_EXIST: Code = Code::Win(1411);

/// A live window has the class.
pub const CLASS_HAS_WINDOWS: Code = Code::Win(1412);
