// The station and the walk as flat records (include/callbridge.h, cb_station, cb_walk), and what such records mean.
ghost use Rattle.std.specs.Prelude.{◌≡◌};
ghost use Rattle.flat.specs.Stations.{station_meant, flat_station, walk_meant, flat_walk};

use crate::{Station, Walk};

// What a record means: 0 is not attached, any other number is attached.
impl From<Station> for station::Station {
    ghost from_gives = { λ flat meant. meant ≡ station_meant flat };

    fn from(flat: Station) -> Self {
        station::Station {
            attached: flat.attached != 0,
            length: flat.length,
            number: flat.number,
        }
    }
}

impl From<station::Station> for Station {
    ghost from_gives = { λ station flat. flat ≡ flat_station station };

    fn from(station: station::Station) -> Self {
        Station {
            length: station.length,
            number: station.number,
            attached: u8::from(station.attached),
            reserved_1: 0,
            reserved_2: 0,
        }
    }
}

impl From<Walk> for walk::Walk {
    ghost from_gives = { λ flat meant. meant ≡ walk_meant flat };

    fn from(flat: Walk) -> Self {
        walk::Walk {
            number: flat.number,
            position: flat.position,
            general: flat.general,
            vector: flat.vector,
            overflow: flat.overflow,
        }
    }
}

impl From<walk::Walk> for Walk {
    ghost from_gives = { λ walk flat. flat ≡ flat_walk walk };

    fn from(walk: walk::Walk) -> Self {
        Walk {
            position: walk.position,
            general: walk.general,
            vector: walk.vector,
            overflow: walk.overflow,
            number: walk.number,
            reserved_4: 0,
        }
    }
}
