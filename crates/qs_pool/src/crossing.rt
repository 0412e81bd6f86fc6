use crate::pool::{Pool, PoolPass};

fn is_shared<T: Sync>(_value: &T) {}

fn is_sent<T: Send>(_value: &T) {}

/// Nothing happens; the types of both are such that threads may have them.
pub fn cross_threads<L: Drop + Send>(pool: &Pool<L>, pass: &PoolPass<L>) {
    is_shared(pool);
    is_sent(pool);
    is_sent(pass);
}
