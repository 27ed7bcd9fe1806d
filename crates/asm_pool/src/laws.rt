//! Laws of the definitions, each proved as the contract of an empty function.

ghost use Rattle.asm_pool.specs.Laws.{PoolLaw};

/// Which literals share an entry, and where entries are placed.
pub fn pool_law()
    ensures { PoolLaw }
{}
