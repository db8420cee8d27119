//! Names of tables, for contracts alone.
use std::marker::Brand;

/// One table and its limits. Each call of a program picks them.
pub trait Name {
    ghost use Rattle.atomic_table.specs.Seated.{TableId};
    ghost use Rattle.event_core.specs.declared.bounds.Limits.{Limits};

    ghost table: { TableId };

    ghost limits: { Limits };
}

impl Name for Brand {
    ghost use Rattle.log_pass.specs.Names.{no_table, no_limits};

    ghost table = { no_table };

    ghost limits = { no_limits };
}
