// "Services: 0 energy; 1, 2, 3 primary, secondary, contingency reserve; 4 regulation."
ghost use Rattle.std.specs.Prelude.{◌≡◌, ◌≤◌, eqb};
ghost use Rattle.offer_rules.specs.Offer.{is_reserve};

// Numbers, since byte 7 may be any.
pub const ENERGY: u8 = 0;

pub const PRIMARY_RESERVE: u8 = 1;

pub const CONTINGENCY_RESERVE: u8 = 3;

pub const REGULATION: u8 = 4;

// A number and no enum: a service is added to a place (W2 + s, the limits, the cells) and held against S.
#[derive(Clone, Copy, Debug, PartialEq, Eq)]
pub struct Service {
    pub number: u8,
    pub ghost known: { number ≤ 4 },
}

impl Service {
    pub fn is_energy(self) -> bool
        ensures { result ≡ eqb self.number 0 }
    {
        self.number == ENERGY
    }

    pub fn is_reserve(self) -> bool
        ensures { result ≡ is_reserve self.number }
    {
        (PRIMARY_RESERVE..=CONTINGENCY_RESERVE).contains(&self.number)
    }

    // How far its word lies from that of service 0.
    pub fn place(self) -> usize
        ensures { (result ≡ self.number) × (result ≤ 4) }
    {
        usize::from(self.number)
    }
}
