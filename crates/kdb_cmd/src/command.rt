//! The commands that change contexts or memory, or leave the session.
pub mod memory_change;
pub mod registers;
pub mod session_exit;
