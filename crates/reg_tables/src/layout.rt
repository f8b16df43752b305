//! How keys are laid out as JSON.
ghost use Rattle.std.specs.Prelude.{◌≡◌, IfOk, string_bytes};
ghost use Rattle.reg_tables.specs.Internal.Layouts.{front_of, before_keys as text_before, between_keys as text_between};
ghost use Rattle.reg_tables.specs.Internal.Layouts.{behind_keys as text_behind, back_of, laid};

use crate::page::{BACK, FRONT};
use crate::shield::shield;
use std::alloc::{AllocError, Global};

/// As an array, as lines, or as the array of a page.
#[derive(Clone, Copy, Drop)]
pub enum Layout {
    Array,
    Lines,
    Page,
}

/// The front of what the keys stand in.
pub fn front(layout: Layout) -> &'static str
    ensures { result.now ≡ front_of layout }
{
    match layout {
        Layout::Array => "",
        Layout::Lines => "",
        Layout::Page => FRONT,
    }
}

/// What stands before the keys.
pub fn before_keys(layout: Layout) -> &'static str
    ensures { result.now ≡ text_before layout }
{
    match layout {
        Layout::Array => "[\n",
        Layout::Lines => "",
        Layout::Page => "[\n",
    }
}

/// What stands between each two keys.
pub fn between_keys(layout: Layout) -> &'static str
    ensures { result.now ≡ text_between layout }
{
    match layout {
        Layout::Array => ",\n",
        Layout::Lines => "\n",
        Layout::Page => ",\n",
    }
}

/// What stands behind the keys.
pub fn behind_keys(layout: Layout) -> &'static str
    ensures { result.now ≡ text_behind layout }
{
    match layout {
        Layout::Array => "\n]\n",
        Layout::Lines => "\n",
        Layout::Page => "\n]\n",
    }
}

/// The back of what the keys stand in.
pub fn back(layout: Layout) -> &'static str
    ensures { result.now ≡ back_of layout }
{
    match layout {
        Layout::Array => "",
        Layout::Lines => "",
        Layout::Page => BACK,
    }
}

/// A key's text as it stands there.
pub fn lay(alloc: Global, text: String, layout: Layout) -> Result<String, AllocError>
    ensures { IfOk result (λ shown. string_bytes shown ≡ laid layout (string_bytes text)) }
{
    match layout {
        Layout::Array => Ok(text),
        Layout::Lines => Ok(text),
        Layout::Page => shield(alloc, text.as_str()),
    }
}
