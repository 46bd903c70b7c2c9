//! Laws of what a store's schema keeps of its tables, as contracts of functions that do nothing else.
ghost use Rattle.td_store_audit.specs.Keeping.{SchemaKeepsAmounts, SchemaKeepsCodes, SchemaKeepsGuarantees, SchemaKeepsHolders};
ghost use Rattle.td_store_audit.specs.Keeping.{OlderFilesHaveNineLines, SchemaKeepsLines, SchemaKeepsMovements, SchemaKeepsTables};

/// The holders' numbers are numbers in range, and no two are the same.
pub fn schema_keeps_holders()
    ensures { SchemaKeepsHolders }
{}

/// Where the rows of guarantees are typed, no two of a holder have one serial, and each is of a holder that is there.
pub fn schema_keeps_guarantees()
    ensures { SchemaKeepsGuarantees }
{}

/// In a file that keeps the amounts in use, where the rows of guarantees are typed without them, each amount is a number,
/// at most the reference amount. So it can be read where the reference amount can.
pub fn schema_keeps_amounts()
    ensures { SchemaKeepsAmounts }
{}

/// Where the rows of codes are typed, no two of a guarantee are the same, and each is of a holder that is there.
pub fn schema_keeps_codes()
    ensures { SchemaKeepsCodes }
{}

/// Where the rows of movements are typed, no two of a holder have one serial or one LRN, and each is of a holder that is there.
pub fn schema_keeps_movements()
    ensures { SchemaKeepsMovements }
{}

/// Where the rows of lines are typed, no two of a movement have one number, and each is of a holder that is there.
pub fn schema_keeps_lines()
    ensures { SchemaKeepsLines }
{}

/// All of this, of the six tables in which a file has its rows.
pub fn schema_keeps_tables()
    ensures { SchemaKeepsTables }
{}

/// In a file below version 3, where the rows of lines are typed, each line's number in its movement is from 1 to 9. And no
/// two lines of a movement have one number: so a movement in such a file has at most nine lines.
pub fn older_files_have_nine_lines()
    ensures { OlderFilesHaveNineLines }
{}
