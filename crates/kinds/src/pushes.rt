// A push toward +x: what the fill of an E row, the current of a W row, and either part of a G row's surcharge exert (002, clauses 5.7.2, 5.8.2 and 5.9.2).

// A force in kN, and its height above the base in mm.
#[derive(Clone, Copy)]
pub struct Push {
    pub force: u64,
    pub arm: u64,
}
