// A case that does not agree, shown.

pub fn show(rt: &HostRuntime, name: &str, numbers: &[u64]) -> anyhow::Result<()> {
    print!(rt; "  {name}")?;
    for n in numbers {
        let n = *n;
        print!(rt; " {n}")?;
    }
    println!(rt; "")?;
    Ok(())
}
