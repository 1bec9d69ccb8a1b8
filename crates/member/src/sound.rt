// Is a member sound: its entries ascend strictly, all ranges are kept, at most 32 places are used, unused places hold zero.
ghost use Rattle.std.specs.Prelude.{◌≡◌};
ghost use Rattle.member.specs.Sound.{in_range, is_none, ascends, all_none, sound_member};
ghost use Rattle.member.specs.Tile.{entries, unused};

use crate::{Member, Name, Row, Value, Version};

// The ranges of an entry and of the gap above it.
#[tactic(auto, unfolding(crate::specs::Sound::in_range))]
pub fn in_range(row: Row) -> bool
    ensures { result ≡ in_range row }
{
    row.name <= Name::LARGEST
        && 0 < row.version
        && row.version <= Version::LARGEST
        && row.value <= Value::LARGEST
        && row.gap <= Version::LARGEST
}

// Does the place hold zero?
#[tactic(auto, unfolding(crate::specs::Sound::is_none))]
pub fn is_none(row: Row) -> bool
    ensures { result ≡ is_none row }
{
    row == Row::NONE
}

impl Member {
    // Do the entries ascend strictly, each within its ranges?
    fn ascending(&self) -> bool
        ensures { result ≡ ascends 0 (entries self.now) }
    {
        let n = self.used();
        let mut from = 0;
        for row in &self.rows[..n] {
            if row.name < from || !in_range(*row) {
                return false;
            }
            from = row.name + 1;
        }
        true
    }

    // Do the unused places hold zero?
    fn rest_is_none(&self) -> bool
        ensures { result ≡ all_none (unused self.now) }
    {
        self.rows[self.used()..].iter().all(|row| is_none(*row))
    }

    #[tactic(auto, unfolding(crate::specs::Sound::sound_member))]
    pub fn is_sound(&self) -> bool
        ensures { result ≡ sound_member self.now }
    {
        self.count <= Member::SLOTS
            && self.low <= Version::LARGEST
            && self.ascending()
            && self.rest_is_none()
    }
}
