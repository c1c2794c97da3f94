ghost use Rattle.std.specs.Prelude.{◌<◌};
ghost use Rattle.base.specs.declared.place.TheConstants.{GROUNDS, PLOTS};

/// How many burial grounds there are.
pub const GROUNDS: u16 = 8;

/// How many plots each ground has.
pub const PLOTS: u16 = 2048;

/// What a cell of a plot is about: its offset east of the chapel door (west is negative), its offset north of it (south is
/// negative), its holder, its status.
#[derive(Clone, Copy, PartialEq, Eq, Debug)]
pub enum Field {
    East = 0,
    North = 1,
    Holder = 2,
    Status = 3,
}

/// Where a cell belongs: a burial ground, 0 to 7, one of its plots, 0 to 2,047, and a field of that.
#[derive(Clone, Copy, PartialEq, Eq, Debug)]
pub struct Place {
    pub burial_ground: u16,
    pub plot: u16,
    pub field: Field,
    ghost ground_within: { burial_ground < GROUNDS },
    ghost plot_within: { plot < PLOTS },
}

impl Place {
    ghost use Rattle.base.specs.Keys.{MakesPlace};

    /// The place of a ground's plot and field, or nothing for a ground above 7 or a plot above 2,047.
    pub fn new(ground: u16, plot: u16, field: Field) -> Option<Self>
        ensures { MakesPlace result ground plot field }
    {
        if ground < GROUNDS && plot < PLOTS {
            Some(Place {
                burial_ground: ground,
                plot,
                field,
            })
        } else {
            None
        }
    }
}

/// The place that a key names.
impl From<u16> for Place {
    ghost use Rattle.std.specs.Prelude.{◌≡◌};
    ghost use Rattle.base.specs.Keys.{Names, key_of};

    ghost from_gives = { λ key place. Names key place × (key_of place ≡ key) };

    fn from(key: u16) -> Place {
        let field = match key % 4 {
            0 => Field::East,
            1 => Field::North,
            2 => Field::Holder,
            _ => Field::Status,
        };
        Place {
            burial_ground: key / 8192,
            plot: key / 4 % 2048,
            field,
        }
    }
}

/// The key that names a place.
impl From<Place> for u16 {
    ghost use Rattle.std.specs.Prelude.{◌≡◌};
    ghost use Rattle.base.specs.Keys.{Names, key_of};

    ghost from_gives = { λ place key. (key ≡ key_of place) × Names key place };

    fn from(place: Place) -> u16 {
        8192 * place.burial_ground + 4 * place.plot + place.field as u16
    }
}
