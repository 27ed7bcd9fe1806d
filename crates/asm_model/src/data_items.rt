//! The table of data items.

ghost use Rattle.std.specs.Prelude.{◌≡◌};
ghost use Rattle.asm_model.specs.DataItems as items;

use crate::directives::{DataItem, Held};

/// What an item is aligned to.
pub fn item_alignment(item: DataItem) -> u32
    ensures { result ≡ items.item_alignment item }
{
    match item {
        DataItem::Word => 4,
        DataItem::UnalignedWord => 1,
        DataItem::HalfWord => 2,
        DataItem::Byte => 1,
    }
}

/// How an item holds its values.
pub fn held_by(item: DataItem) -> Held
    ensures { result ≡ items.held_by item }
{
    match item {
        DataItem::Word => Held::Relocatable,
        DataItem::UnalignedWord => Held::Relocatable,
        DataItem::HalfWord => Held::Fixed(2),
        DataItem::Byte => Held::Strings,
    }
}
