mod boards;
mod node_lists;
mod scripts;
