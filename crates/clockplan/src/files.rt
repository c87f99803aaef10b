// Files, with their names in what goes wrong.
use anyhow::anyhow;
use std::fs;

pub(crate) fn read_bytes(rt: &HostRuntime, path: &str) -> anyhow::Result<Vec<u8>> {
    fs::read(rt, path).map_err(|error| anyhow!("{path}: {error}"))
}

pub(crate) fn read_text(rt: &HostRuntime, path: &str) -> anyhow::Result<String> {
    fs::read_to_string(rt, path).map_err(|error| anyhow!("{path}: {error}"))
}

pub(crate) fn write_bytes(rt: &HostRuntime, path: &str, bytes: &[u8]) -> anyhow::Result<()> {
    fs::write(rt, path, bytes).map_err(|error| anyhow!("{path}: {error}"))
}
