//! Tests of the low crates. Those of bytes: what goes in and out, texts, records, headers, arguments and results, and the port mapper,
//! which answers over them. And those of the bus and of what hangs on it, of the gateway of one thread, of interleaved events, and of
//! the gate that threads share.
#![tactic(auto)]

#[cfg(test)]
mod bench_tests;
#[cfg(test)]
mod codec_tests;
#[cfg(test)]
mod drop_tests;
#[cfg(test)]
mod event_lists_tests;
#[cfg(test)]
mod gate_tests;
#[cfg(test)]
mod io_tests;
#[cfg(test)]
mod latch_tools;
#[cfg(test)]
mod mapper_answer_tests;
#[cfg(test)]
mod mapper_packet_tests;
#[cfg(test)]
mod mapper_run_tests;
#[cfg(test)]
mod mapper_stream_tests;
#[cfg(test)]
mod mapper_tools;
#[cfg(test)]
mod model_tests;
#[cfg(test)]
mod packet_box_tools;
#[cfg(test)]
mod rack_tests;
#[cfg(test)]
mod record_tests;
#[cfg(test)]
mod row_tools;
#[cfg(test)]
mod rpc_tests;
#[cfg(test)]
mod step_tools;
#[cfg(test)]
mod table_tests;
#[cfg(test)]
mod wire_tests;
#[cfg(test)]
mod word_tools;
#[cfg(test)]
mod xdr_tests;
