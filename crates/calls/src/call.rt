// The calls on a checker, as data.

// Calls on a file say which one, by its number in the order of naming, from 0.
#[derive(Clone, Copy)]
pub enum Call<'a> {
    AddEntity(&'a [u8]),
    AddContract(&'a [u8]),
    NameFile(&'a [u8]),
    Identify(usize, &'a [u8]),
    Withdraw(usize),
    Close(usize),
    Judge(usize, &'a [u8]),
    LookUp(&'a [u8]),
    Total,
}
