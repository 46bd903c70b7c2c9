//! Laws of the tables, as contracts of functions that do nothing.
ghost use Rattle.td_table_model.specs.Laws.{AccountsAreInTables, AmountsAreUse, ChangesAreWritten, ContentIsOfTables, CountingRowsAreUse, LinesInUseAreUse, ReferencesTellKeys, RowsAreFoundInTables, RuledContentIsSound, RuledTablesAreOfContent, RulesMeanSoundContent, TablesGrow};
ghost use Rattle.td_table_model.specs.Rules.{RulesAreKeptEach};

/// Tables that have just the rows of sound content have that content.
pub fn content_is_of_tables()
    ensures { ContentIsOfTables }
{}

/// The statements of a change turn tables of a content into tables of the content after the change.
pub fn changes_are_written()
    ensures { ChangesAreWritten }
{}

/// Tables keep the rules exactly where they are the tables of some sound content; and then they are those of
/// the content that they hold, which is sound.
pub fn rules_mean_sound_content()
    ensures of_content { RuledTablesAreOfContent }
    ensures sound { RuledContentIsSound }
    ensures exactly { RulesMeanSoundContent }
{}

/// What a desk keeps of a holder is looked up in tables of its content: all of it, a guarantee or a movement by
/// its reference, and the amounts in use by the movements that count, or by their lines.
pub fn accounts_are_in_tables()
    ensures account { AccountsAreInTables }
    ensures found { RowsAreFoundInTables }
    ensures in_use { CountingRowsAreUse }
    ensures lines { LinesInUseAreUse }
{}

/// The reference in a row tells the row's key, so that a row may be asked for by its key and its reference.
pub fn references_tell_keys()
    ensures { ReferencesTellKeys }
{}

/// Tables of which the database keeps what it does keep the rules exactly where they keep each of them.
pub fn rules_are_kept_each()
    ensures { RulesAreKeptEach }
{}

/// The amounts that tables keep are those in use.
pub fn amounts_are_use()
    ensures { AmountsAreUse }
{}

/// Tables whose guarantees get the amounts in use are tables of the version that keeps them, of the same content.
pub fn tables_grow()
    ensures { TablesGrow }
{}
