//! Pages of memory that threads share: a pool makes them all at once, and from then on they go out and come back.
//!
//! Nothing here takes memory but [`Pool::new`]. What a thread has read can so be kept for another thread within a
//! bound that stands from the start, and a thread that finds the pool empty knows it at once.
//!
//! ```text
//!   Pool, a queue of pages             a chain of pages: what was taken, the newest first
//!
//!   +----+----+----+                   +-----------+     +-----------+
//!   |  4 |  0 |  2 |   --- take --->   | number  3 |     | number  1 |
//!   +----+----+----+                   | 4,096     |     | 4,096     |
//!                      <-- give ----   |     bytes |     |     bytes |
//!   each page by itself                | before  ------> | before  ------> nothing
//!                                      +-----------+     +-----------+
//! ```
//!
//! A page goes out with its number, which no other page of its pool has, its 4,096 bytes as whoever had it last left
//! them, and a place for the page before it. So pages are chained without memory of their own, and a chain is parted
//! again, page by page, before its pages are given back.
//!
//! A thread takes and gives by a [`PoolPass`], which is its own. For contracts a pass knows the numbers of the pages
//! that it put into the queue at the start, took and gave; the code keeps none of these lists. Between any two steps
//! of any threads each page is in the queue or was taken, as often as it was put there or given back: no page is lost
//! or doubled. [`laws`] says what follows of all passes together.
//!
//! A pass that is used with another pool than its own is refused by the contracts, as is a page that still has pages
//! before it and is to be given. A page that came from another pool is taken as it is, and may make the queue full
//! for a while: [`Pool::give`] then tries again.
#![tactic(auto)]

pub mod laws;
mod make;
mod moves;
mod page;
mod pass;
mod pool;
mod rule;
mod view;

pub use page::{PAGE_BYTES, Page};
pub use pass::PoolPass;
pub use pool::Pool;
pub use view::View;
