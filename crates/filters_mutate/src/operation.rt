// The operations of `mutate`, and the order in which they are done.
/// An operation of the filter `mutate`.
#[derive(Clone, Copy)]
pub enum Operation {
    Coerce,
    Rename,
    Update,
    Replace,
    Convert,
    Gsub,
    Uppercase,
    Capitalize,
    Lowercase,
    Strip,
    Split,
    Join,
    Merge,
    Copy,
}

/// The operations in the order in which they are done, whatever their order in the configuration.
pub(crate) const ORDER: [Operation; 14] = [
    Operation::Coerce,
    Operation::Rename,
    Operation::Update,
    Operation::Replace,
    Operation::Convert,
    Operation::Gsub,
    Operation::Uppercase,
    Operation::Capitalize,
    Operation::Lowercase,
    Operation::Strip,
    Operation::Split,
    Operation::Join,
    Operation::Merge,
    Operation::Copy,
];
