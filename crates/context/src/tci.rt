// The measurements of a context. tci.rs.
ghost use Rattle.std.specs.Prelude.{◌≡◌};
ghost use Rattle.context.specs.Context.{zero_tci};

pub const TCI_SIZE: usize = 48;

#[derive(Clone, Copy, Debug, PartialEq, Eq)]
pub struct TciNodeData {
    pub tci_type: u32,
    pub tci_cumulative: [u8; TCI_SIZE],
    pub tci_current: [u8; TCI_SIZE],
    pub locality: u32,
    pub svn: u32,
}

impl TciNodeData {
    pub fn new() -> TciNodeData
        ensures { result ≡ zero_tci }
    {
        let tci_cumulative = [0u8; TCI_SIZE];
        let tci_current = [0u8; TCI_SIZE];
        TciNodeData {
            tci_type: 0,
            tci_cumulative,
            tci_current,
            locality: 0,
            svn: 0,
        }
    }
}
