//! The items of a journal that a reopening doesn't read.

ghost use Rattle.std.specs.Prelude.{◌≡◌, length};
ghost use Rattle.lert_cone.specs.Unread.{unread};

use lert_base::Settings;
use lert_bay::Bay;
use std::marker::Model;
use std::snapshot::Snapshot;

/// The items before the record of the journal at which a reopening begins. Nobody reads them: contracts alone see them, by the
/// bay as the cone was made.
#[derive(Drop)]
pub struct Unread<B: Bay> {
    settings: Settings,
    version: u8,
    cone: u32,
    len: u64,
    made: Snapshot<B>,
}

impl<B: Bay> Model for Unread<B> {
    ghost use Rattle.std.specs.Prelude.{List};
    ghost use Rattle.lert_cone.specs.Unread.{unread};
    ghost use Rattle.lert_spec.specs.declared.item.Item.{Item};

    ghost Value = { List Item };

    ghost view = { λ u. unread u.version u.settings u.cone u.len (B.files u.made.value) };
}

impl<B: Bay> Unread<B> {
    /// So many items from the first one of a bay's journal on. Makes no call of the bay.
    pub fn of(bay: &B, settings: &Settings, version: u8, cone: u32, len: u64) -> Unread<B>
        ensures { result ≡ unread version settings.now cone len (B.files bay.now) }
    {
        Unread {
            settings: *settings,
            version,
            cone,
            len,
            made: Snapshot::of(bay),
        }
    }

    /// How many they are.
    pub fn len(&self) -> u64
        ensures { result ≡ length self.now }
    {
        self.len
    }
}
