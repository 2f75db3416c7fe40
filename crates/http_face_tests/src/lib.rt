//! Tests of `http_face` over its public calls: rows of heads, routes and replies, and each call that takes memory.
#![tactic(auto)]

#[cfg(test)]
mod heads;
#[cfg(test)]
mod replies;
#[cfg(test)]
mod routes;
