use gate_net::ValueLine;

/// What a line behind the first two says.
#[derive(Debug, Drop)]
pub enum Row {
    Values(ValueLine),
    /// The time of the end.
    End(u64),
}
