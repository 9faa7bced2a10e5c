// The twelve coming instalments: what each of the next bills will add to the amount due.
use figures::reported::Cents;

/// What a coming bill brings, and how many corrections it comes from.
#[derive(Clone, Copy)]
pub struct Instalment {
    pub cents: Cents,
    pub count: u32,
}

/// A place for each of the next twelve bills, in the account itself, since it keeps no heap.
#[derive(Clone, Copy)]
pub struct Coming {
    pub places: [Instalment; 12],
}
