mod alone_runs;
mod fixtures;
mod observers;
mod rounds;
mod rows;
