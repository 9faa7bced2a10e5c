// Work over the rows of a sheet.
pub(crate) mod asking;
pub(crate) mod estimating;
pub(crate) mod found;
pub(crate) mod laying;
pub(crate) mod relaying;
pub(crate) mod spans;
