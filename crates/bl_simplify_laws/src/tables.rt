//! What functions do over tables of functions that do the same (`specs/Tables.antt`). Lemmas only.

ghost use Rattle.bl_simplify_laws.specs.Tables.{TablesDecide, TablesDecideBlocks};

/// A block does the same over two tables that know the same, and so does a function.
pub fn tables_decide()
    ensures blocks { TablesDecideBlocks }
    ensures functions { TablesDecide }
{}
