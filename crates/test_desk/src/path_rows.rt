//! Paths, and the rows that they fit.
use path_table::{PathTable, Row, rows_are_found_as_by_matchit};
use std::process::Abort;
use std::test::Fail;

// A row with a number.
struct Numbered {
    path: &'static str,
    number: u32,
}

impl Row for Numbered {
    ghost pattern = { λ row. row.path.now };

    fn pattern(&self) -> &str {
        self.path
    }
}

/// Rows, of which two have the same pattern.
static ROWS: [Numbered; 5] = [
    Numbered {
        path: "/books",
        number: 1,
    },
    Numbered {
        path: "/books/{title}",
        number: 2,
    },
    Numbered {
        path: "/books",
        number: 3,
    },
    Numbered {
        path: "/books/{title}/pages/{page}",
        number: 4,
    },
    Numbered {
        path: "/readers/{reader}/books",
        number: 5,
    },
];

/// Paths, the numbers of the rows that they fit (0 where they fit none), and their parts.
static PATHS: [(&str, u32, &str, &str); 17] = [
    ("/books", 1, "", ""),
    ("/books/Emma", 2, "Emma", ""),
    ("/books/{title}", 2, "{title}", ""),
    ("/books/Émile", 2, "Émile", ""),
    ("/books/books", 2, "books", ""),
    ("/books/Emma/pages/7", 4, "Emma", "7"),
    ("/readers/books/books", 5, "books", ""),
    ("", 0, "", ""),
    ("/", 0, "", ""),
    ("books", 0, "", ""),
    ("/book", 0, "", ""),
    ("/books/", 0, "", ""),
    ("/bookshelf", 0, "", ""),
    ("//books", 0, "", ""),
    ("/books//pages/7", 0, "", ""),
    ("/books/Emma/pages", 0, "", ""),
    ("/books/Emma/pages/7/", 0, "", ""),
];

// The path fits the row with this number, and has these parts.
fn finds(rt: &impl Abort, table: &PathTable<'_, Numbered>, case: &(&str, u32, &str, &str)) {
    let (path, number, first, second) = *case;
    match table.find(path) {
        Some(found) => {
            assert!(rt; found.row.number == number);
            assert!(rt; found.parts.get(0).unwrap_or("") == first);
            assert!(rt; found.parts.get(1).unwrap_or("") == second);
        }
        None => assert!(rt; number == 0),
    }
}

#[test]
fn compares_segments(rt: HostRuntime) -> Result<(), Fail> {
    let table = PathTable::new(rt.alloc(), &ROWS)?;
    for case in &PATHS {
        finds(&rt, &table, case);
    }
    rows_are_found_as_by_matchit();
    Ok(())
}
