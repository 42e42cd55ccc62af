// The areas of a house's tables.
ghost use Rattle.std.specs.Prelude.{◌≡◌, ◌≤◌, MatchOption};
ghost use Rattle.packets.specs.Areas.{journal_area, identity_area, agreeing_area, session_area, rest_area, kept_area, AreasApart, AreasHold};

use crate::area::Area;
use copies::number::HouseNumber;
use copies::sessions::MOST_HOUSES;

// The journal: two records of 3,200 sectors.
pub const JOURNAL: Area = Area {
    first: 0,
    count: 6_400,
};

// Who the house is, and how often it has come up.
pub const IDENTITY: Area = Area {
    first: 6_400,
    count: 1,
};

// What it stores of the agreement. With a proposal of 49 bundles of 8 writes it has 216,484 bytes, and takes 423 sectors.
pub const AGREEING: Area = Area {
    first: 6_401,
    count: 430,
};

// The sessions begin here, one behind the other. One with the replies of 8 reads has 4,217 bytes, and takes 9 sectors.
const SESSIONS: u64 = 6_831;

const SESSION_SECTORS: u64 = 10;

// Next number, weight and heads. With those of 4,096 volumes it has 131,090 bytes, and takes 257 sectors.
pub const REST: Area = Area {
    first: 7_321,
    count: 257,
};

// What is known of the directory besides its sectors.
pub const KEPT: Area = Area {
    first: 7_578,
    count: 1,
};

// No table reaches it.
pub const TABLES_END: u64 = 16_384;

// Where a house's session is.
pub fn session_area(house: HouseNumber) -> Option<Area>
    ensures { MatchOption result (49 ≤ house.0) (λ a. a ≡ session_area house.0) }
{
    if house.0 >= MOST_HOUSES {
        return None;
    }
    Some(Area {
        first: SESSIONS + SESSION_SECTORS * house.0,
        count: SESSION_SECTORS,
    })
}

// No two areas have a sector in common, and what is kept in each finds room there.
#[tactic(auto, using(crate::proofs::Room::areas_apart, crate::proofs::Room::areas_hold))]
pub fn areas_promised()
    ensures journal { JOURNAL ≡ journal_area }
    ensures identity { IDENTITY ≡ identity_area }
    ensures agreeing { AGREEING ≡ agreeing_area }
    ensures rest { REST ≡ rest_area }
    ensures kept { KEPT ≡ kept_area }
    ensures end { TABLES_END ≡ 16384 }
    ensures apart { AreasApart }
    ensures hold { AreasHold }
{}
