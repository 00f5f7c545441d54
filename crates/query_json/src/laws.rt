//! Laws on what a file means.
ghost use Rattle.std.specs.Prelude.{◌≡◌, ◌↔◌, ℕ, List, Bool, Option, Some, None, Result, Ok, Err, All, map};
ghost use Rattle.dpe_base.specs.Queries.{JoinQuery, IsQuery, relations};
ghost use Rattle.dpe_base.specs.Sets.{full};
ghost use Rattle.join_graph.specs.Graphs.{Connected, IsFirstUnreached, graph_of};
ghost use Rattle.serde_json.specs.Data.{Data};
ghost use Rattle.query_json.specs.declared.entry.Entry.{Entry};
ghost use Rattle.query_json.specs.declared.entry.Named.{Named};
ghost use Rattle.query_json.specs.declared.fault.FileFault.TheVariants.{DuplicateTable, NotJson, Shape};
ghost use Rattle.query_json.specs.declared.file.File.{File};
ghost use Rattle.query_json.specs.declared.file.QueryItem.{QueryItem};
ghost use Rattle.query_json.specs.declared.file.RelationItem.{RelationItem};
ghost use Rattle.query_json.specs.declared.file.Table.{Table};
ghost use Rattle.query_json.specs.declared.place.Place.{Place};
ghost use Rattle.query_json.specs.declared.refusal.QueryRefusal.{QueryRefusal};
ghost use Rattle.query_json.specs.declared.refusal.QueryRefusal.TheVariants.{DuplicateAlias};
ghost use Rattle.query_json.specs.Entries.{entries_of, entries_of_value, table_names};
ghost use Rattle.query_json.specs.Laws.{IsFirstRefused, RefusesTheLeastPlace, passes};
ghost use Rattle.query_json.specs.Queries.{aliases_of, named_of, query_of};
ghost use Rattle.query_json.specs.Queries.Causes.{IsFirstRepeat, Never, Refusing};
ghost use Rattle.query_json.specs.Queries.Unreached.{first_unreached};
ghost use Rattle.query_json.specs.Sound.{IsEntrySound};
ghost use Rattle.query_json.specs.Walk.{file_at, json_of};
ghost use Rattle.query_json.specs.Walk.Limits.{IsQueryWithin, IsTableWithin};
ghost use Rattle.query_json.specs.Walk.Places.{AllKeepFormat, IsFirstBroken, version_of, visits};

/// The relation for which a query is refused as not connected is the least that no walk from relation 0 reaches, and
/// there is none exactly where the query is connected.
pub fn unreached_by_walks()
    ensures { (q : JoinQuery) → IsQuery q
        → ((first_unreached q ≡ None) ↔ Connected (graph_of q) (full (relations q)))
        × ((r : ℕ) → (first_unreached q ≡ Some r) ↔ IsFirstUnreached (graph_of q) r) }
{}

/// A text holds what the value holds that it reads as, and one that reads as none is refused as not JSON. So each law on
/// values is one on texts.
pub fn texts_hold_what_their_values_hold()
    ensures { (bytes : List ℕ)
        → ((d : Data) → json_of bytes ≡ Some d → entries_of bytes ≡ entries_of_value d)
        × (json_of bytes ≡ None → entries_of bytes ≡ Err NotJson) }
{}

/// Each accepted entry is a connected query within the limits, with one alias for each of its relations.
pub fn accepted_entries_are_sound()
    ensures { (d : Data) (entries : List Entry) → entries_of_value d ≡ Ok entries → All IsEntrySound entries }
{}

/// A file is refused for a place exactly when the place breaks the format and no earlier place in the order of the walk does;
/// and it has the parts of a file exactly when no place breaks the format.
pub fn the_first_broken_place_is_the_fault()
    ensures { (d : Data)
        → ((p : Place) → (entries_of_value d ≡ Err (Shape p)) ↔ ((k : ℕ) × IsFirstBroken (version_of d) (visits d) p k))
        × (((f : File) × (file_at d ≡ Ok f)) ↔ AllKeepFormat (version_of d) (visits d)) }
{}

/// The table that a file is refused for is the first whose name an earlier table has.
pub fn duplicate_tables_by_place()
    ensures { (tables : List Table) (name : List ℕ)
        → (table_names tables ≡ Err (DuplicateTable name)) ↔ ((k : ℕ) × IsFirstRepeat (map (λ t. t.name) tables) name k) }
{}

/// The alias that a query is refused for is that of the first relation whose alias an earlier relation has.
pub fn duplicate_aliases_by_place()
    ensures { (rs : List RelationItem) (name : List ℕ)
        → (aliases_of rs ≡ Err (DuplicateAlias name)) ↔ ((k : ℕ) × IsFirstRepeat (map (λ r. r.alias) rs) name k) }
{}

/// A query is refused for the first of nine causes, and it is accepted exactly where none of them is there.
pub fn the_first_cause_decides()
    ensures { (tables : List Table) (q : QueryItem) → All IsTableWithin tables → IsQueryWithin q
        → ((why : QueryRefusal) → (named_of tables q ≡ Err why) ↔ Refusing tables q why)
        × (((n : Named) × (named_of tables q ≡ Ok n)) ↔ Never (Refusing tables q)) }
{}

/// A query is refused for what the first of eight passes gives that refuses it. What none of them refuses is refused where
/// it is not connected ([`unreached_by_walks`]).
pub fn the_first_pass_decides()
    ensures { (tables : List Table) (q : QueryItem) (why : QueryRefusal)
        → (query_of tables q ≡ Err why) ↔ ((k : ℕ) × IsFirstRefused (λ at pass. pass) (passes tables q) why k) }
{}

/// Each pass over the relations or the joins of a query refuses exactly what its least refused member is refused for.
pub fn passes_refuse_the_least_place()
    ensures { (tables : List Table) (q : QueryItem) (why : QueryRefusal) → RefusesTheLeastPlace tables q why }
{}
