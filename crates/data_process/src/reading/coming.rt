ghost use Rattle.std.specs.Prelude.{◌↔◌, IsTrue};
ghost use Rattle.data_process.specs.Coming.{AreRows, CanAsk};

use group_message::Session;
use process_service::Service;

/// Whether a session of the group can ask for a block, with these rows.
pub fn can_ask(session: Session, block: u32, rows: &[u32], service: &Service) -> bool
    ensures { IsTrue result ↔ CanAsk service.now.shape session block rows.now }
{
    let shape = service.shape();
    service.is_parity(session.leader) && block < shape.blocks() && are_rows(shape.m(), rows)
}

// Whether these are different numbers below `m`.
fn are_rows(m: u32, rows: &[u32]) -> bool
    ensures { IsTrue result ↔ AreRows m rows.now }
{
    'each: for at in 0..rows.len() {
        let row = rows[at];
        if m <= row {
            return false;
        }
        if rows[..at].contains(&row) {
            return false;
        }
    }
    true
}
