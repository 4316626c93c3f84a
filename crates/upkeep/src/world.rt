// The books and the host below. What the books keep is asked and told by the steps, and is no field here: a start makes kept books of
// blank ones in place.
use ledger::Ledger;

#[derive(Drop)]
pub struct World<H> {
    pub ledger: Ledger,
    pub host: H,
}
