//! What causes of conflicts are made of.

use crate::kinds::Shown;
use crate::sought::Sought;
use std::alloc::Global;
use ytables::Tables;

/// What causes are made of.
#[derive(Clone, Copy)]
pub struct Scene<'a> {
    pub alloc: Global,
    /// What rules are shown with.
    pub shown: Shown<'a>,
    /// The tables.
    pub tables: &'a Tables,
    /// What was sought.
    pub sought: &'a Sought,
}
