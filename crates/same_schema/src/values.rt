//! Places, names, values and terms.
use crate::same::{Same, are_same};
use sqlite_items::Items;
use sqlite_schema::code::{Op, Terms};
use sqlite_value::keys::Order;
use sqlite_value::value::{Bytes, Value};

impl Same for usize {
    fn is_same(&self, other: &usize) -> bool {
        *self == *other
    }
}

impl Same for Order {
    fn is_same(&self, other: &Order) -> bool {
        self.digits == other.digits
    }
}

impl Same for Bytes {
    fn is_same(&self, other: &Bytes) -> bool {
        self.as_slice() == other.as_slice()
    }
}

impl<T: Same> Same for Items<T> {
    fn is_same(&self, other: &Items<T>) -> bool {
        are_same(self.as_slice(), other.as_slice())
    }
}

impl Same for Value {
    // (two floating-point numbers are never said to be the same: no schema of ours has one)
    fn is_same(&self, other: &Value) -> bool {
        match (self, other) {
            (Value::Null, Value::Null) => true,
            (Value::Int(n), Value::Int(m)) => *n == *m,
            (Value::Text(text), Value::Text(words)) => text.is_same(words),
            (Value::Blob(blob), Value::Blob(bytes)) => blob.is_same(bytes),
            _ => false,
        }
    }
}

impl Same for Op {
    fn is_same(&self, other: &Op) -> bool {
        match (self, other) {
            (Op::Literal(value), Op::Literal(literal)) => value.is_same(literal),
            (Op::Column(slot, at), Op::Column(row, place)) => *slot == *row && *at == *place,
            (Op::Unary(op, a), Op::Unary(sign, b)) => *op == *sign && *a == *b,
            (Op::Binary(op, a, b), Op::Binary(sign, c, d)) => *op == *sign && *a == *c && *b == *d,
            (Op::Case(test, a, b), Op::Case(when, c, d)) => *test == *when && *a == *c && *b == *d,
            _ => false,
        }
    }
}

impl Same for Terms {
    fn is_same(&self, other: &Terms) -> bool {
        self.nodes.is_same(&other.nodes) && self.roots.is_same(&other.roots)
    }
}
