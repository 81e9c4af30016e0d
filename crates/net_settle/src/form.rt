/// Which payments are asked for.
#[derive(Clone, Copy, Debug, PartialEq, Eq)]
pub enum Form {
    /// Those of each two banks, as `bilateral` finds them.
    Bilateral,
    /// Those that are netted over all banks, as `net` finds them.
    Net,
}
