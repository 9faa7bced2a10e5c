// The memory that an account is lent.
use figures::line::Line;
use figures::row::Row;

/// For the rows and for the lines apart, since either may be as large as the caller likes. An opening takes both from here, and a
/// closing puts them back.
#[derive(Drop)]
pub struct Memory<'a> {
    pub sheet: &'a mut [Row],
    pub journal: &'a mut [Line],
}
